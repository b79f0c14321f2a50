// Laws of entries and their numbers. These functions do nothing: their clauses are the laws.
ghost use Rattle.cpe_dictionary.specs.Numbers.{ChainsByNumber, EndsByNumber, WidthsByNumber, PathsByNumber, NodesAreNumbered, NodesAreMarked, ChangesByNumber, AdditionsByNumber};
ghost use Rattle.cpe_dictionary.specs.Answers.{ChainsOfNodes, EndsOfNodes};
ghost use Rattle.cpe_dictionary.specs.Edits.{KnownAreEntries, EditsAreChanges, NamesStayDifferent, WidthAfterByNumber};
ghost use Rattle.cpe_dictionary.specs.Faults.{WritesByNumber, NamesHaveNumbers, EdgesAreFew, RepeatsByNumber, DifferentByNumber, CyclesByNumber, WidthByNumber};

/// Law: the chain of an entry has the entries whose numbers are in the chain of its number. Its ends are the names of
/// the entries whose numbers are the ends of its number, and are equally many. A path leads from one entry to another
/// exactly if a path leads from the number of the first to that of the second.
pub fn chains_by_number()
    ensures chains { ChainsByNumber }
    ensures ends { EndsByNumber }
    ensures widths { WidthsByNumber }
    ensures paths { PathsByNumber }
{
    cpe_rows::law::chains_are_paths();
    cpe_rows::law::names_are_equal();
    deprecation_graph::law::chains_are_paths();
}

/// Law: if all entries have different names, the nodes that are made of them have their numbers. A node is active
/// exactly if its entry is, and has the numbers of its entry's successors.
pub fn entries_are_numbered()
    ensures numbered { NodesAreNumbered }
    ensures marked { NodesAreMarked }
{
    cpe_rows::law::names_are_equal();
}

/// Law: if an entry is replaced by one of the same name, only its own node changes. If an active entry is added at the
/// end, a node is added.
pub fn changes_by_number()
    ensures changes { ChangesByNumber }
    ensures additions { AdditionsByNumber }
{}

/// Law: if all names are different, the chain of an entry has the entries that are in the chain of its node. Its ends
/// are the names of the active entries of this chain.
pub fn answers_by_number()
    ensures chains { ChainsOfNodes }
    ensures ends { EndsOfNodes }
{
    chains_by_number();
    entries_are_numbered();
}

/// Law: a change of the entry of a name replaces the entry at the name's place. If all given names have entries, there
/// are as many numbers as names, and each number is that of an entry. If no deprecation has too many successors, there
/// are at most `MOST_SUCCESSORS` edges for each entry.
pub fn edits_by_number()
    ensures writes { WritesByNumber }
    ensures numbers { NamesHaveNumbers }
    ensures edges { EdgesAreFew }
{}

/// Law: a successor is repeated exactly if its number is. If no number is repeated, all numbers are different. The
/// first successor that leads to the entry has the first number that leads to the entry's number. The first entry with
/// too many ends has the number of the least node with too many ends.
pub fn faults_by_number()
    ensures repeats { RepeatsByNumber }
    ensures different { DifferentByNumber }
    ensures cycles { CyclesByNumber }
    ensures width { WidthByNumber }
{
    cpe_rows::law::names_are_equal();
    chains_by_number();
    entries_are_numbered();
}

/// Law: an edit of an entry's deprecation is a change of its node. If no successor is unknown, all successors are
/// entries. If they are also as many as their kind allows, and none is repeated, the graph can check the change. If all
/// names are different before the edit, they are different after it. The first entry that would have too many ends is
/// the least node that would have too many.
pub fn edits_are_changes()
    ensures known { KnownAreEntries }
    ensures changes { EditsAreChanges }
    ensures different { NamesStayDifferent }
    ensures width { WidthAfterByNumber }
{
    changes_by_number();
    edits_by_number();
    faults_by_number();
}
