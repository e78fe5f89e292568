//! Laws of the definitions that contracts cite, and those definitions computed on samples. The functions are lemmas:
//! they do nothing at run time.

ghost use Rattle.std.specs.Prelude.{◌≡◌, ℕ, List, [], ◌∷◌};
ghost use Rattle.gpu_alloc_types.specs.declared.types.MemoryType.{MemoryType};
ghost use Rattle.gpu_alloc_usage.specs.Ranking.{IsRanking, IsRankingWithin, ranking, candidates, implied};
ghost use Rattle.gpu_alloc_usage.specs.ThreeTypes.{three_types};

/// A ranking has exactly the types that may serve the usage, by key and then by index. No other list has this property.
pub fn ranking_is_exact_and_sorted()
    ensures is { (usage : ℕ) (types : List MemoryType) → IsRanking usage types (ranking usage types) }
    ensures only { (usage : ℕ) (types : List MemoryType) (ranked : List ℕ) → IsRanking usage types ranked
        → ranked ≡ ranking usage types }
{}

/// The candidates of a request are exactly the types that may serve its usage and whose bit is set in its mask, by key
/// and then by index.
pub fn candidates_are_exact_and_sorted()
    ensures { (types : List MemoryType) (usage mask : ℕ)
        → IsRankingWithin (implied usage) types mask (candidates types usage mask) }
{}

/// Rankings of three types: DEVICE_LOCAL; HOST_VISIBLE and HOST_COHERENT; and these with HOST_CACHED. A usage with only
/// unnamed bits is ranked like an empty one.
#[tactic(auto, unfolding(crate::specs::Ranking::put_in, crate::specs::Ranking::in_order))]
pub fn rankings_of_samples()
    ensures none { ranking 0 three_types ≡ 0 ∷ 1 ∷ 2 ∷ [] }
    ensures fast { ranking 1 three_types ≡ 0 ∷ 1 ∷ 2 ∷ [] }
    ensures host { ranking 2 three_types ≡ 1 ∷ 2 ∷ [] }
    ensures download { ranking 6 three_types ≡ 2 ∷ 1 ∷ [] }
    ensures upload { ranking 8 three_types ≡ 1 ∷ 2 ∷ [] }
    ensures transient { ranking 16 three_types ≡ 1 ∷ 2 ∷ 0 ∷ [] }
    ensures unnamed { candidates three_types 64 7 ≡ 0 ∷ 1 ∷ 2 ∷ [] }
    ensures allowed { candidates three_types 16 5 ≡ 2 ∷ 0 ∷ [] }
{}
