// The day file read and written again, and written and read: theorems about the reader's and the writer's definitions.
#![tactic(auto)]
