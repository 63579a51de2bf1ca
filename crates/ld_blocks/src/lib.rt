//! A list that grows by blocks. What it holds is never moved, so an item costs the same to append to a long list as to
//! a short one; and room can be taken ahead, so that appending takes no memory.
//!
//! Make [`Blocks`], take room by `reserve`, and append by `push`. Contracts see the items and how many of them there is
//! room for (`specs/Listed.antt`, to be believed). `specs/Blocked.antt` is the code's own: how the blocks hold the list.
#![tactic(auto)]

mod blocks;

pub use blocks::Blocks;
