//! Rows of what a program reaches outside itself, and of the desk's keeper and connections.
#![tactic(auto)]

#[cfg(test)]
mod connections;
#[cfg(test)]
mod keeper;
#[cfg(test)]
mod objects;
#[cfg(test)]
mod replies;
#[cfg(test)]
mod requests;
