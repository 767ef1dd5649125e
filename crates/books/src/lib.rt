//! What a job book is, when book and sheet are sound, and what each call does: definitions, and what they promise over every list of calls.
#![tactic(auto)]
