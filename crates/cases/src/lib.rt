// Worked cases of the markets and of the session's first calls.
#![tactic(auto)]

#[cfg(test)]
mod markets;
#[cfg(test)]
mod sessions;
