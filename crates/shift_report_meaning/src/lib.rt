// No code: what document 02, Point 9 says of the page that shift_report::tally writes, as theorems.
#![tactic(auto)]
