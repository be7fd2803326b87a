//! A worked example, which the checker computes.

ghost use Rattle.std.specs.Prelude.{◌≡◌, [], ◌∷◌, ◌++◌};
ghost use Rattle.mega_promises.specs.Worked.{quiet, wish_put};
ghost use Rattle.mega_reply_laws.specs.Examples.{both, opened, run, timed_out, told_so};
ghost use Rattle.mega_reply_laws.specs.Requests.{replies, requests};

/// A client asks twice under one token. Both operations open, and no reply goes out; once the patience of the first is over there is one reply,
/// and once that of the second is over there are two.
pub fn a_client_asks_twice()
    ensures none { replies (run both).lines ≡ [] }
    ensures opened { requests 1 wish_put (run both).lines ≡ opened 1 ∷ opened 2 ∷ [] }
    ensures one { replies (run (both ++ quiet 1005 ∷ [])).lines ≡ told_so ∷ [] }
    ensures ended { requests 1 wish_put (run (both ++ quiet 1005 ∷ [])).lines ≡ timed_out 1 ∷ opened 2 ∷ [] }
    ensures two { replies (run (both ++ quiet 1005 ∷ quiet 1006 ∷ [])).lines ≡ told_so ∷ told_so ∷ [] }
    ensures all { requests 1 wish_put (run (both ++ quiet 1005 ∷ quiet 1006 ∷ [])).lines ≡ timed_out 1 ∷ timed_out 2 ∷ [] }
{}
