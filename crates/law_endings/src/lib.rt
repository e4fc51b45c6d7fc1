// Laws alone: files, sheets and input that differ in the endings of their lines.
#![tactic(auto)]
