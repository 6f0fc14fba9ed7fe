// Calls that the programs do not make: small benches and sheets, roots that are no nodes, normal forms that are not for usage.
#![tactic(auto)]

#[cfg(test)]
mod tests;
