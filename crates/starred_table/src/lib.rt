// The starred examples of document 01, proved as one table: proofs/Table.antt.
#![tactic(auto)]
