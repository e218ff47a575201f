// What the receiving end of extended length messages means: the plain machine in specs/, and that every list of calls does what it does.
#![tactic(auto)]
