//! Tests of the ground layer: files and output, texts, lines, headers, sets of atoms and stacks.
#![tactic(auto)]

#[cfg(test)]
mod atomset;
#[cfg(test)]
mod lines;
#[cfg(test)]
mod outside;
#[cfg(test)]
mod space;
#[cfg(test)]
mod stack;
#[cfg(test)]
mod text;
