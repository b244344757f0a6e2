// The settings store, stated: definitions and laws, no functions. `settings`, `setting_names` and `sound_settings` compute them.

#![tactic(auto)]
