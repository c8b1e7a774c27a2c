// No code: the settled instances of document 01, as one claim over the definitions.
#![tactic(auto)]
