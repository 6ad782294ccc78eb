// Laws of a contract met by another's, where no function stands: of one that does what another does at other arguments (proofs/Adapt.antt),
// of a thin one over a stack that the caller lends (proofs/Lent.antt), and of one that lends a stack of its own (proofs/Lends.antt).
#![tactic(auto)]
