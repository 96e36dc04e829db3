// General definitions and laws, in specs/. No code.
#![tactic(auto)]
