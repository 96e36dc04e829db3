// What the whole keeps: statements that need both ends, the drive's and the client's, over the promises of their public calls. No code.
#![tactic(auto)]
