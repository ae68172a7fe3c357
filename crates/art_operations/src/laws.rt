//! Laws of the operations: functions that do nothing, each with a law as its contract.
pub use art_checking::laws::{key_prefixes_are_in_order, stats_start_at_zero};
pub use art_keyed::laws::keys_are_never_in_conflict;
pub use art_keys::laws::{
    escapes_come_back_in_order, joined_keys_keep_order, signed_numbers_come_back_in_order,
    unsigned_numbers_come_back_in_order,
};
pub use art_reading::laws::{a_tree_is_walked_whole, a_walk_goes_on, look_ups_start_by_default};
pub use art_running::laws::the_same_pairs_leave_the_same_tree;
pub use art_sets::laws::keys_of_two_sets;
pub use art_writing::laws::end_leaves_have_end_points;
