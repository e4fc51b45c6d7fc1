// Laws alone: the services of the requests on files, lists and scripts that differ in the endings of their lines.
#![tactic(auto)]
