// Known records, read and written.
#![tactic(auto)]

#[cfg(test)]
mod records;
