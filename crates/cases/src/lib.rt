// Sheets that are run: what the reader says of each.
#![tactic(auto)]

#[cfg(test)]
mod lines;
#[cfg(test)]
mod sheets;
