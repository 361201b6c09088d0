// What a rewrite would gain: the gains of all vertices, from the summary. All over the lists of an accepted graph, as they are lent.
#![tactic(auto)]

mod passing; // passing.rt: the longest path that passes each place of the order
pub mod table; // table.rt: the gains of all vertices
