//! What the merge of a trace is to legal histories, and what the machine makes of it.
ghost use Rattle.basis_core.specs.TraceLaws.{TraceLaws};

/// The entries of a trace. `complete`: those of a caller are its calls, all of them, where each offer has its packet and its
/// check. `merged` and `replays` are of traces that list their callers by rising numbers, those of all records among them.
/// `merged`: the entries that `merge` puts in order are the merge of the callers' calls, as legal histories have it.
/// `replays`: where the history is legal and each offer has the first check that it fails, the answers that were kept and the
/// records are a replay of the merged events. `one_replay`: of events that fit there is just one, so these are what `replay`
/// gives.
pub fn traces()
    ensures { TraceLaws }
{
    linear_spec::laws::one_case();
}
