// The grammar of bracket sheets, and that the reader's definitions agree with it. It has no code of its own.
#![tactic(auto)]
