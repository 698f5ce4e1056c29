// Sessions of the bench with what they print, and the engine at dock records: tests whose whole text was worked out by
// hand from the rules of the memory.
#![tactic(auto)]

#[cfg(test)]
mod tests;
