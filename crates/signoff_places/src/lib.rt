//! Where the names of modules and of sets stand in their texts, as far as the tokens tell, and the lines of places.
//! Each call says in its contract what it answers, but for those that look for declarations, instances, suspect
//! expressions and broken rules on clocks, and the count of covers: these are proved to be safe and to end, and the
//! rest is tested.
#![tactic(auto)]

mod clocks;
mod modules;
mod place;
mod sets;
mod suspects;
mod titles;
mod tokens;

pub use clocks::{Broken, Rule, broken_rule};
pub use modules::{
    Declared, Instance, Named, Pick, byte_of_name, declared_in, given_in, instance_in,
    last_instance_in, module_in, named_in, place_of_name, used_in,
};
pub use place::{Place, add_line, place_of};
pub use sets::{
    DeclaredInSet, block_of, clause_before, count_of, count_of_covers, cover_in, declared_in_set,
    declares, next_again, offset_above, property_in, used_in_set, window_of,
};
pub use suspects::{divided_signal, leaving_select};
pub use titles::{declared_name, invariant_name, property_at, property_name, titled};
pub use tokens::{
    around, behind, behind_word, byte_at, first, last_behind_word, number_at, shown, stands,
    text_of, tokens_of, up_to, width_at, word_at, word_of,
};
