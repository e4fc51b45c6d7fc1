// Definitions and laws only: specs/ says what playing a script on units comes to.
#![tactic(auto)]
