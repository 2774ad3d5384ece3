// The check of a rule book: whether its amounts and its time keep what each level may see.
// It is generic over every scale of levels and every meter, and runs nothing.
#![tactic(auto)]

pub mod checker;
mod grounds;
mod tolls;
pub mod verdict;
mod walk;
