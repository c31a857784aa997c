//! Initialisers: which part of an object an item of a brace list initialises, and what it does to it.
//!
//! Its public contract answers the steps of an initialiser in the order of the text, or a fault with the number of its token. No call walks a
//! tree.
//!
//! The rules come from C11 6.5.2.5 and 6.7.9; that a union becomes zero before another member of it is initialised is own.
#![tactic(auto)]

mod filling;
mod levels;
mod stores;

pub use filling::{Filled, Filling, Storage, is_character_array, not_flexible};
pub use levels::{Composite, Level, Levels, Next, composite_of};
pub use stores::{
    Designated, Place, choose_element, choose_named, chosen, enter_designated, list_at,
    literal_place, literal_storage, literal_type, literals, only_string, put_converted, put_item,
    put_literals, put_string_item, put_whole, renew,
};
