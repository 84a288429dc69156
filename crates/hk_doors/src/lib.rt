//! Doors that tell how many connections they still give.
//!
//! Doors over a port can't know who will come, so what is promised of doors that tell how many connections are left
//! says little of them. [`CountedDoors`] stand before such doors, and give 18,446,744,073,709,551,615 connections
//! at most: so many are left as did not come yet. So a server over them is done only where no fewer connections
//! came than it was asked for.
//!
//! The caller opens them before it takes a connection. Where the doors behind give none, that counts as a fault,
//! since some are left: who tries again while doors fail would try for ever.
//!
//! What is proved. What is left falls by one with each connection that comes, and none comes only where nothing is
//! left (`left`). They are closed where those behind are. `Failed` comes only where their count rose (`cause`). Where the
//! doors behind tell how many they still give, nothing is told that those did not: a connection is one that came
//! through them, and `Failed` comes only where they failed, or gave none (`behind`).
//!
//! What no clause says: that doors behind which don't tell that are asked, but for the code, which is one for all; which
//! port is opened of them, since doors don't tell it.
#![tactic(auto)]

mod counted;

pub use counted::CountedDoors;
