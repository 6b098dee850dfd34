//! How many messages casts carry.

ghost use Rattle.cb_history.specs.LoadLaws.{ReadLoadsFit, LoadsCastFit, LoadsThereFit, CastsCarrySome};

/// A cast that is read or made carries some messages, and at most as many as a burst may, so each that is there does.
pub fn loads_fit_their_frames()
    ensures read { ReadLoadsFit }
    ensures cast { LoadsCastFit }
    ensures there { LoadsThereFit }
    ensures some { CastsCarrySome }
{}
