// Laws over the blocks of an enclave, and over signers.
ghost use Rattle.std.specs.Prelude.{◌≡◌, ◌+◌, ◌*◌, ◌^◌, ◌<◌, ◌++◌, ℕ, List, [], ◌∷◌, length, IsTrue, ◌↔◌, Contains};
ghost use Rattle.std.specs.List.{AllByRecursion};
ghost use Rattle.ak_measure.specs.Blocks.{page_blocks, blocks_of, IsWhole};
ghost use Rattle.ak_measure.specs.Signers.{Signed, single, names_of, knows, allows, HasSigned, Ascend};

/// The blocks of an enclave with one more page are those without it, and then those of the page.
pub fn one_more_page()
    ensures { (size : ℕ) (pages : List (ℕ × List ℕ)) (page : ℕ × List ℕ)
        → blocks_of size (pages ++ page ∷ [])
        ≡ blocks_of size pages ++ page_blocks (4096 * length pages) page.0 page.1 }
{}

/// Each page of 4096 bytes has 5184 bytes of blocks; the block of ECREATE has 64.
pub fn bytes_of_blocks()
    ensures { (size : ℕ) (pages : List (ℕ × List ℕ)) → AllByRecursion (λ p. length p.1 ≡ 4096) pages
        → length (blocks_of size pages) ≡ 64 + 5184 * length pages }
{}

/// The blocks tell the enclave: two enclaves with the same blocks have the same size, and the same flags and bytes of
/// each page.
pub fn blocks_tell_the_enclave()
    ensures { (size other_size : ℕ) (pages others : List (ℕ × List ℕ)) → size < 2 ^ 64 → other_size < 2 ^ 64
        → AllByRecursion IsWhole pages → AllByRecursion IsWhole others
        → blocks_of size pages ≡ blocks_of other_size others → (size ≡ other_size) × (pages ≡ others) }
{}

/// A name is known exactly where it is one of the names. Where names ascend, as those of a signers file do, a digest is
/// allowed for a name exactly where it is one of the digests that stand with that name.
pub fn membership()
    ensures known { (signers : Signed) (name : List ℕ)
        → IsTrue (knows signers name) ↔ Contains (names_of signers) name }
    ensures allowed { (signers : Signed) (name digest : List ℕ) → Ascend (names_of signers)
        → IsTrue (allows signers name digest) ↔ HasSigned signers name digest }
{}

/// Where there is a single signer, its name alone is known, and for it its one digest alone is allowed.
pub fn single_signer()
    ensures known { (name digest other : List ℕ) → IsTrue (knows (single name digest) other) ↔ (other ≡ name) }
    ensures allowed { (name digest other signed : List ℕ)
        → IsTrue (allows (single name digest) other signed) ↔ ((other ≡ name) × (signed ≡ digest)) }
{}
