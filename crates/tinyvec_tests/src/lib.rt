//! The tests of what neither a contract nor an example of the reference can say: values that are worked out by hand, drops and
//! their order, sizes, what crosses threads, the stack, endless iterators, hints that lie, forgotten drains, requests for memory
//! that are refused or counted, blocks that are lost, and what the owner of lent slots sees.
#![tactic(auto)]

#[cfg(test)]
mod answers;
#[cfg(test)]
mod arrays;
#[cfg(test)]
mod asked;
#[cfg(test)]
mod borsh;
#[cfg(test)]
mod clones;
#[cfg(test)]
mod counted;
#[cfg(test)]
mod drops;
#[cfg(test)]
mod endless;
#[cfg(test)]
mod failing;
#[cfg(test)]
mod fields;
#[cfg(test)]
mod filters;
#[cfg(test)]
mod forgotten;
#[cfg(test)]
mod iterators;
#[cfg(test)]
mod lent;
#[cfg(test)]
mod lent_lists;
#[cfg(test)]
mod lists;
#[cfg(test)]
mod loops;
#[cfg(test)]
mod macros;
#[cfg(test)]
mod many;
#[cfg(test)]
mod no_memory;
#[cfg(test)]
mod pages;
#[cfg(test)]
mod places;
#[cfg(test)]
mod ranges;
#[cfg(test)]
mod records;
#[cfg(test)]
mod refusals;
#[cfg(test)]
mod scripts;
#[cfg(test)]
mod shown;
#[cfg(test)]
mod splices;
#[cfg(test)]
mod steps;
#[cfg(test)]
mod texts;
#[cfg(test)]
mod trees;
#[cfg(test)]
mod unequal;
#[cfg(test)]
mod values;
