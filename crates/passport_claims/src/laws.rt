//! Laws: a function here does nothing, and its clause is the law.
ghost use Rattle.std.specs.Prelude.{◌≡◌, ℕ, ◌+◌, ◌↔◌, List, [], ◌∷◌, ◌++◌, length, Option, Some, Ok};
ghost use Rattle.serde_json.specs.Data.{Data};
ghost use Rattle.passport_json.specs.Compact.{CallView};
ghost use Rattle.passport_json.specs.Signed.{payload_in};
ghost use Rattle.passport_json.specs.Token.{TokenText};
ghost use Rattle.passport_json.specs.View.{TokenView};
ghost use Rattle.passport_claims.specs.Claims.{Claims};
ghost use Rattle.passport_claims.specs.GoesOn.{GoesOn};
ghost use Rattle.passport_claims.specs.Kind.{IsKnown};
ghost use Rattle.passport_claims.specs.Links.{dest_of};
ghost use Rattle.passport_claims.specs.Order.{IsOrder};
ghost use Rattle.passport_claims.specs.OrderReading.{order_of};
ghost use Rattle.passport_claims.specs.Passport.{ClaimsView};
ghost use Rattle.passport_claims.specs.Read.{read_claims};

use passport_json::signed_law;

/// Claims are read of a header and a payload exactly if these are those of a PASSporT that says so (RFC 8225, sections
/// 4 and 5). This holds for each type that an Identity header field may have here.
pub fn claims_law()
    ensures { (header payload : Data) (ppt : Option (List ℕ)) (info : List ℕ) (claims : ClaimsView) → IsKnown ppt
        → (read_claims header payload ppt info ≡ Ok claims) ↔ Claims header payload ppt info claims }
{}

/// If the header and payload of a token are those of a PASSporT, what was signed as this token has this payload after
/// its dot (RFC 7515, section 2).
pub fn signed_claims_law()
    ensures { (text : List ℕ) (call : CallView) (token : TokenView) (ppt : Option (List ℕ)) (info : List ℕ)
        (claims : ClaimsView) → TokenText text call token → Claims token.header token.payload ppt info claims
        → payload_in token.signing ≡ Some token.payload }
{
    signed_law();
}

/// Links are given an order exactly if they are in it, and then this one (RFC 8946, section 4.2).
pub fn order_law()
    ensures { (origin : ClaimsView) (links : List ClaimsView) (called : Option (List ℕ)) (turn : List ℕ)
        → (order_of origin links called ≡ Ok turn) ↔ IsOrder origin links called turn }
{}

/// Links are in an order with one link more after them and at its end, exactly if the call goes on by this link: the
/// others are in that order up to its div, and the call hasn't been at its dest (RFC 8946, section 4.2). After the
/// others it has the number after theirs.
pub fn one_link_more_law()
    ensures order { (origin : ClaimsView) (links : List ClaimsView) (turn : List ℕ) (link : ClaimsView) → GoesOn origin
        links turn link ↔ IsOrder origin (links ++ link ∷ []) (Some (dest_of link)) (turn ++ (length links + 1) ∷ []) }
    ensures exact { (origin : ClaimsView) (links : List ClaimsView) (turn : List ℕ) (link : ClaimsView)
        → GoesOn origin links turn link
        → order_of origin (links ++ link ∷ []) (Some (dest_of link)) ≡ Ok (turn ++ (length links + 1) ∷ []) }
{}
