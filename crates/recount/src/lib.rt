// No code: the polls of a call, a chain or a sheet, counted again from the words of its log.
#![tactic(auto)]
