// All that is promised, on two pages: specs/EntryPoints.antt and specs/Claims.antt. There is no
// code here.
#![tactic(auto)]
