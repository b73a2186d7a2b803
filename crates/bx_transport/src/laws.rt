ghost use Rattle.bx_transport.specs.Laws.{ScriptsReadTheSame};

/// Proves that a JSON text has the same value if U+2028 and U+2029 are escaped, as in scripts.
#[tactic(auto, using(crate::proofs::Safe::scripts))]
pub fn scripts_read_the_same()
    ensures { ScriptsReadTheSame }
{}
