//! What is known of a program in which a part of a block is exchanged for another one, from what was known before.
//!
//! A block stands in *holes*: each is one block of an if or a while, with what stands around it (`specs/Holes.antt`).
//! A part stands in its block between the statements before and after it. The lemmas say of the program with another part:
//!
//! - its entries are those of before, but of the statements that go and come, of their two neighbours, of the statement
//!   that has the block, and of the loop around it, which loses the breaks that go and gets those that come, where only
//!   one of the two are among its breaks (`spliced` of `specs/Spliced.antt`; `proofs/Table.antt`, `Holders.antt`,
//!   `Breaks.antt`); another condition changes one entry (`proofs/Guards.antt`);
//! - its first fault is that of the part alone, where the parts have the same calls: the count of statements and the
//!   depth of the place decide whether it is too large (`proofs/Programs.antt`, `Exchange.antt`);
//! - where no call stands in the statements that come and go, all this is told by what is known at the place: its block,
//!   the statements before and after, and the loop around it (`specs/Gaps.antt`, `proofs/Closed.antt`, `Parts.antt`);
//! - its call statements stay, and so do its procedures except the ends of a body (`proofs/Sites.antt`); it fits over slots
//!   (`proofs/Fitting.antt`).
//!
//! A statement of a program stands in holes, and is found by its number (`proofs/Standing.antt`).
#![tactic(auto)]
