// Files whose answers are known, read by the plan reader. The tests stand apart from what they test, so that neither is proved again with the other.
#![tactic(auto)]

#[cfg(test)]
mod tests;
