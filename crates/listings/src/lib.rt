// A file is listed, or refused by its own fault: theorems about the reader that every listing uses.
#![tactic(auto)]
