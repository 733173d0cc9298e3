//! Typed programs: expressions, statements and declarations, what they become, and the typing rules that they break.
#![tactic(auto)]

mod arguments;
mod attributes;
mod braces;
mod buffers;
mod call_sites;
mod conditions;
mod constant_words;
mod constants;
mod constructors;
mod declarators;
mod dots;
mod elaboration;
mod expressions;
mod fault;
mod function_attributes;
mod functions;
mod indexes;
mod inits;
mod items;
mod jumps;
mod kinds;
mod layout;
mod locals;
mod made;
mod method_sites;
mod params;
mod registers;
mod returns;
mod semantics;
mod shared;
mod signatures;
mod sizes;
mod statements;
mod structs;
mod threads;
mod types;
mod whole;

pub use elaboration::elaborate;
pub use fault::RuleFault;
