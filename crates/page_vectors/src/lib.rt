// Known stores, and the pages that are cut from them; a run and a tree of the same versions, question by question.
#![tactic(auto)]

#[cfg(test)]
mod pages;
#[cfg(test)]
mod tags;
