// Runs of the share-out and of the pools.
#![tactic(auto)]

#[cfg(test)]
mod boards;
#[cfg(test)]
mod books;
#[cfg(test)]
mod nets;
#[cfg(test)]
mod shares;
#[cfg(test)]
mod told;
