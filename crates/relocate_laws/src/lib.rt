// Laws of what relocate defines: scopes, the sorted rows as three stretches of a source, the label table as columns, the prophets kept. No code.
#![tactic(auto)]
