// The games of 01, played on the definitions that the contracts cite. By computation alone, in specs/.
#![tactic(auto)]
