//! Who owns a point, of every setup and every list of events.

ghost use Rattle.rc_owner_laws.specs.Chains.{PointsHaveOneChain, TermsRise, PointsAreGrantedOnce};

/// The owners of a point form one chain: of two terms granted for it one is the earlier one, an
/// earlier term is less, and no id is granted it twice.
pub fn owners_form_one_chain()
    ensures chain { PointsHaveOneChain }
    ensures less { TermsRise }
    ensures once { PointsAreGrantedOnce }
{}
