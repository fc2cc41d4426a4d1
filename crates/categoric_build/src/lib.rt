// What a record of categories is built of (docs/RULES.md, "Categoric"): keys kept ascending with their colours, and the table of colours by key.
#![tactic(auto)]

pub mod sorted;
pub mod table;
