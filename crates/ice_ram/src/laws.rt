//! The law of circuits that memories close, as the contract of a function that does nothing.
ghost use Rattle.ice_ram.specs.Laws.{ClosingsShowTheSame};

/// Two machines that show the same for every list of levels show the same when memories close them that go together. `S` and
/// `T` are their states, `M` and `N` those of the memories, `I` and `J` what comes in, `O` and `P` what is shown, `K` and `L`
/// what comes from outside.
pub fn closings_show_the_same<S, T, M, N, I, J, O, P, K, L>()
    ensures { ClosingsShowTheSame S T M N I J O P K L }
{}
