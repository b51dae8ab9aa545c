//! The words of the machine: what is packed into them, the cells in which they lie, and how the
//! words change that a compare-and-modify changes: entries of deques, holders of places, order words
//! of joins.
//! Model: a packing is a list of fields of bits (`specs/Fields`), a cell a name of a word
//! (`specs/Cells`). A transition is a pair of entries (`specs/DequeChange`) or of holders
//! (`specs/HoldChange`); what may come of a word are the changes in a row (`specs/DequeOrder`,
//! `specs/HoldOrder`). An order word is a number from 0 to 3 (`specs/JoinOrder`), an outcome a
//! finish (`specs/JoinOutcome`).
//! Contract: what is packed comes back from that word alone; addresses of different cells differ. No
//! entry and no holder comes back, and a taken entry stays; who finds its own bid holds the place; of
//! the two branches of a fork exactly one is last, and the left one's trap goes before the right
//! one's.
//! Stands on `ppm_words`; layout and the step of the machine stand on it.
//! After the restart pointers, tagged deque entries and joins of Blelloch et al., SPAA 2018, and the
//! deque of Chase and Lev, SPAA 2005; places, holders, links, inheriting, branches in one strand and
//! all packings are this project's.
#![tactic(auto)]

mod board;
mod cell;
mod deque_laws;
mod ending;
mod entry;
mod field;
mod finish;
mod hold;
mod hold_laws;
mod holder;
mod join_laws;
mod laws;
mod link;
mod order;
mod outcome;
mod owner;
mod region;
mod restart;
mod shape;
mod side;
mod tag;
mod thief;

pub use board::post;
pub use cell::{Cell, header_at, left_frame};
pub use deque_laws::{
    entries_never_return, others_leave_the_own_entries, others_take_for_themselves,
    taken_entries_stay, transitions_go_on, what_is_won_was_made,
};
pub use ending::Ending;
pub use entry::Entry;
pub use finish::{Finish, UNKNOWN_PLACE};
pub use hold::{bid, holder_can_rise, kept};
pub use hold_laws::{bids_go_on, holders_never_return, others_bid_for_themselves};
pub use holder::Holder;
pub use join_laws::{one_branch_is_last, order_words_are_set_once};
pub use laws::{
    cells_are_the_words, greatest_word_count, packings_are_exact, stored_values_are_seen,
    stores_change_one_cell,
};
pub use link::{Link, LinkKind};
pub use order::{inline, last};
pub use outcome::joined;
pub use owner::{Pop, pop_above, pop_below, push_above, push_job};
pub use region::Region;
pub use restart::{Restart, RestartKind};
pub use shape::{LEAST_ROOM, LEAST_SLOTS, POOL_WORD_LIMIT, Shape, Takeover, pools_fit};
pub use side::Side;
pub use tag::entry_can_rise;
pub use thief::{inherit, steal, won};
