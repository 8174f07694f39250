// The ledger for the buying office (02, W11): the book written and read by RFC 4180. Nothing runs here: specs/ has the text that is
// written, the reader and its refusals, and that reading what was written gives the same records in the same order.
#![tactic(auto)]
