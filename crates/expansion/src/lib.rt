// Nothing runs here: what a version 3 table is expanded to, by docs/BLOCKS.md, and what that stands for.
#![tactic(auto)]
